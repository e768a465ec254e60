// The values of attributes: their kept forms, and which of them each kind admits.
#![tactic(auto)]

mod amounts;
mod classes;
mod codes;
mod dates;
mod kept;
mod millionths;
mod pieces;
mod rfcs;
mod texts;
mod values;

pub use amounts::amount;
pub use codes::code;
pub use dates::date_time;
pub use kept::Kept;
pub use millionths::Amount;
pub use pieces::piece;
pub use values::admits;
