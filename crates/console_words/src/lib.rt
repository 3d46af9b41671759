// The words of a console line: numbers, images and texts in hexadecimal,
// figures, the values of fields, and levels. Every function takes any
// bytes, and returns `None` or an empty piece for a word of another form.
#![tactic(auto)]

mod numbers; // numbers.rt: decimal numbers, with or without a sign, and lists of them
mod hexadecimal; // hexadecimal.rt: bytes as hexadecimal digits and back
mod levels; // levels.rt: a writer's level
mod parts; // parts.rt: the words of a line
mod values; // values.rt: the value of a field

use codes::Value;
pub use hexadecimal::{bytes_of, spell};
pub use levels::level_of;
pub use numbers::{figure_of, figures_of, number_of};
pub use parts::{
    front, front_figures, front_mut, is_minus, piece_at, piece_count, word, word_count,
};
use templates::Level;
pub use values::{single_word, value_of};
