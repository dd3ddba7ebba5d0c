// The functions of libkrevilosh.a, as C calls them: each is that of the library krevilosh of the same name, with its clauses.
#![tactic(auto)]

mod asking;
mod credits;
mod entries;
mod publishers;
mod reading;
mod writing;
