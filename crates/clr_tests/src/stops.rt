//! What is there after a stop at each call to a file of a database, and after a crash there.
mod crashes;
mod making;
mod moving;
mod running;
mod trial;
