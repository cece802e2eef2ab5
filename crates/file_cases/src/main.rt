// Edition files at the edges of what is accepted, one printed line each: what the file is and what filling from it gave.
#![tactic(auto)]

mod build;
mod catalogues;
mod facts;
mod fillings;
mod frames;
mod shown;

use std::io;

fn main(rt: HostRuntime) -> io::Result<()> {
    println!(rt; "-- mark, version and counts")?;
    frames::print_headers(&rt)?;
    println!(rt; "-- lengths")?;
    frames::print_lengths(&rt)?;
    frames::print_cut(&rt)?;
    print_catalogues(&rt)?;
    println!(rt; "-- one fact")?;
    facts::print_facts(&rt)?;
    println!(rt; "-- room in the register, and which of two faults is told")?;
    fillings::print_fillings(&rt)
}

fn print_catalogues(rt: &HostRuntime) -> io::Result<()> {
    println!(rt; "-- counts, predicates and names")?;
    catalogues::print_counts(rt)?;
    catalogues::print_places(rt)?;
    catalogues::print_names(rt)?;
    println!(rt; "-- operations")?;
    catalogues::print_limits(rt)?;
    catalogues::print_entries(rt)?;
    catalogues::print_id_terms(rt)?;
    catalogues::print_parameter_terms(rt)?;
    catalogues::print_faults(rt)
}
