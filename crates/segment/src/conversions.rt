// An entry and a row as words, in their order, and back. The spare words are 0.
ghost use Rattle.std.specs.Prelude.{◌≡◌};
ghost use Rattle.segment.specs.Fields.{entry_words, file_words, place_words, entry_of, file_row_of, place_row_of};

use crate::layout::{DATA_WORDS, FILE_ROW_WORDS, PLACE_FIELDS, PLACE_ROW_WORDS};
use crate::{Entry, FileRow, PlaceRow};

#[tactic(auto, unfolding(crate::specs::Fields::entry_of))]
impl From<[u16; DATA_WORDS]> for Entry {
    ghost from_gives = { λ ws m. m ≡ entry_of ws };

    fn from([place, unit, limit, keep, status, log, size, seconds, _]: [u16; DATA_WORDS]) -> Self {
        Entry {
            place,
            unit,
            limit,
            keep,
            status,
            log,
            size,
            seconds,
        }
    }
}

#[tactic(auto, unfolding(crate::specs::Fields::entry_words))]
impl From<Entry> for [u16; DATA_WORDS] {
    ghost from_gives = { λ m ws. ws ≡ entry_words m };

    fn from(m: Entry) -> Self {
        [
            m.place, m.unit, m.limit, m.keep, m.status, m.log, m.size, m.seconds, 0,
        ]
    }
}

#[tactic(auto, unfolding(crate::specs::Fields::file_row_of))]
impl From<[u16; FILE_ROW_WORDS]> for FileRow {
    ghost from_gives = { λ ws r. r ≡ file_row_of ws };

    fn from([words, factor, blocks, block, spent, held, _, _]: [u16; FILE_ROW_WORDS]) -> Self {
        FileRow {
            words,
            factor,
            blocks,
            block,
            spent,
            held,
        }
    }
}

#[tactic(auto, unfolding(crate::specs::Fields::file_words))]
impl From<FileRow> for [u16; FILE_ROW_WORDS] {
    ghost from_gives = { λ r ws. ws ≡ file_words r };

    fn from(r: FileRow) -> Self {
        [r.words, r.factor, r.blocks, r.block, r.spent, r.held, 0, 0]
    }
}

#[tactic(auto, unfolding(crate::specs::Fields::place_row_of))]
impl From<[u16; PLACE_ROW_WORDS]> for PlaceRow {
    ghost from_gives = { λ ws r. r ≡ place_row_of ws };

    fn from(
        [side, id, share, timeout, extended, typed, keep, first, ..]: [u16; PLACE_ROW_WORDS],
    ) -> Self {
        PlaceRow {
            side,
            id,
            share,
            timeout,
            extended,
            typed,
            keep,
            first,
        }
    }
}

#[tactic(auto, unfolding(crate::specs::Fields::place_words))]
impl From<PlaceRow> for [u16; PLACE_FIELDS] {
    ghost from_gives = { λ r ws. ws ≡ place_words r };

    fn from(r: PlaceRow) -> Self {
        [
            r.side, r.id, r.share, r.timeout, r.extended, r.typed, r.keep, r.first,
        ]
    }
}
