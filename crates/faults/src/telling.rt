// The number of lines that have ended, and the kinds of faults that were told of them.
ghost use Rattle.std.specs.Prelude.{◌≡◌};
ghost use Rattle.faults.specs.Heard.{none, knows, tells, next_line, hears};

use crate::reading::Fault;

// Whether each kind of fault was told.
// Kept: in an array of flags, found by the number of the kind, each law would ask for its length; a named flag needs none.
#[derive(Clone, Copy, Default)]
pub struct Told {
    pub blank: bool,
    pub lower: bool,
    pub returns: bool,
    pub strange: bool,
    pub long: bool,
    pub odd: bool,
}

// The number of the last line that has ended, counted from 1, and the kinds told by then.
#[derive(Clone, Copy, Default)]
pub struct Heard {
    pub lines: u64,
    pub told: Told,
}

// Whether nothing is left to tell of a line with this fault, or with none.
#[tactic(auto, unfolding(crate::specs::Heard::knows))]
pub fn is_told(told: Told, fault: Option<Fault>) -> bool
    ensures { result ≡ knows told fault }
{
    match fault {
        None => true,
        Some(Fault::Blank) => told.blank,
        Some(Fault::Lower) => told.lower,
        Some(Fault::Return) => told.returns,
        Some(Fault::Strange) => told.strange,
        Some(Fault::Long) => told.long,
        Some(Fault::Odd) => told.odd,
    }
}

// The kinds told after this fault is.
#[tactic(auto, unfolding(crate::specs::Heard::tells))]
fn mark(mut told: Told, fault: Fault) -> Told
    ensures { result ≡ tells told fault }
{
    match fault {
        Fault::Blank => told.blank = true,
        Fault::Lower => told.lower = true,
        Fault::Return => told.returns = true,
        Fault::Strange => told.strange = true,
        Fault::Long => told.long = true,
        Fault::Odd => told.odd = true,
    }
    told
}

// The number of the line after line n. After the largest number it stays there.
#[tactic(auto, unfolding(crate::specs::Heard::next_line))]
pub fn next_line(n: u64) -> u64
    ensures { result ≡ next_line n }
{
    n.saturating_add(1)
}

// What is heard before the first line.
#[tactic(auto, unfolding(crate::specs::Heard::none))]
pub fn unheard() -> Heard
    ensures { result ≡ none }
{
    Heard::default()
}

// What is heard after a line ends that has this fault, or none.
#[tactic(auto, unfolding(crate::specs::Heard::hears))]
pub fn hear(heard: Heard, fault: Option<Fault>) -> Heard
    ensures { result ≡ hears heard fault }
{
    let lines = next_line(heard.lines);
    let told = match fault {
        Some(fault) => mark(heard.told, fault),
        None => heard.told,
    };
    Heard { lines, told }
}
