//! The public surface by the names of the facade: each item is called once with its arguments, and each impl is asked for
//! by a bound. What the calls do is said by their contracts and by the rows; here a name that goes away, or arguments in
//! another order, are no longer read.

mod errors;
mod extensions;
mod impls;
mod items;
mod maps;
mod messages;
mod records;
mod types;
mod wire;
