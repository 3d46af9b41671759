// The commands of the warranty bench: one command a line from a reader, one answer a line
// to a writer (docs/CONSOLE.md). A line that is no command, or longer than 32 KiB, is
// answered `?`. No line causes a fault, and every call ends.
#![tactic(auto)]

mod arguments; // arguments.rt: the kind and the image of a line
mod builds; // builds.rt: build
mod choosing; // choosing.rt: which command a line is
mod dispatch; // dispatch.rt: a line answered by its command
mod conformities; // conformities.rt: conform
mod curves; // curves.rt: the curve of a build
mod distances; // distances.rt: distance
mod edits; // edits.rt: change, propose and commit
mod indexes; // indexes.rt: index and fetch
mod printing; // printing.rt: the parts of an answer
mod readings; // readings.rt: reading
mod reads; // reads.rt: check, show, page and field
mod items; // items.rt: pair, segment, term and char
mod rows; // rows.rt: next
mod comparing; // comparing.rt: compare
mod serving; // serving.rt: lines from standard input
mod text; // text.rt: text and codes

pub use serving::serve;
