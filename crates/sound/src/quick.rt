// Fast paths of the soundness test. Every call except fresh makes that test, and most of what it looks at is at rest: entries free and in order, lists empty,
// places not open. A fast path sees this at once. It is a step of the plain test, and its contract says which; or it says that the plain test holds, and
// `choice` asks the plain test if the fast path cannot tell; or it is the plain test, where the other lists are empty (`free`).
pub mod bytes;
pub mod free;
pub mod heads;
pub mod order;
pub mod room;
pub mod tables;
