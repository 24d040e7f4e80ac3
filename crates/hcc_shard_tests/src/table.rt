//! Of `hcc_table`: that entries are placed where there is room, that those that were placed are
//! found, and the very words that stand after each call.
mod caller;
mod calls;
mod held;
mod hired;
mod rows;
mod threads;
mod twins;
mod worn;
