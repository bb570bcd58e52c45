//! Tests of the program as a whole, and of the calls of the crates below it.

mod answers;
mod bounds;
mod checks;
mod edges;
mod files;
mod fixtures;
mod images;
mod judgements;
mod libraries;
mod modules;
mod rechecks;
mod report_rows;
mod reports;
mod rounds;
mod rules;
mod smallest;
mod states;
mod steps;
mod table_checks;
mod verdicts;
mod whole;
