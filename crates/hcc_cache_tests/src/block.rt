//! Of blocks: the texts of errors, and what is read through a cache, counted and left.

mod errors;
mod example;
mod played;
mod rows;
mod told;
