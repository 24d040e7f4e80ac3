//! Of `hcc_charge`: that room is found, and the very turns, charges, places and words that stand
//! after each call.
mod guest;
mod rows;
mod threads;
