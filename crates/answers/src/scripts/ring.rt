use crate::scripts::output::output_of;
use std::alloc::{AllocError, Global};
use std::io;
use std::io::Write;

const SITES: u8 = 64;

// Each site's bound, and a bound of the last that it withdraws.
fn append_opening(script: &mut String) -> Result<(), AllocError> {
    write!(script, "steps 2\nsites {SITES}\n")?;
    for site in 1..=SITES {
        write!(script, "{site} add z s1 0.{site:03} *\n")?;
    }
    script.push_str("64 add z s1 70.000 80.000\n64 withdraw 64.2\n")
}

// Each site merges the one before it, and the first the last.
fn append_round(script: &mut String) -> Result<(), AllocError> {
    write!(script, "1 merge {SITES}\n")?;
    for before in 1..SITES {
        write!(script, "{} merge {before}\n", before.saturating_add(1))?;
    }
    Ok(())
}

fn append_reports(script: &mut String) -> Result<(), AllocError> {
    for site in 1..=SITES {
        write!(script, "{site} report\n")?;
    }
    Ok(())
}

// What a longer script prints after what the script prints that it begins with.
fn printed_behind(alloc: Global, script: &str, longer: &str) -> Result<Vec<u8>, AllocError> {
    let before = output_of(alloc, script);
    let all = output_of(alloc, longer);
    let more = all.strip_prefix(before.as_slice()).unwrap_or(&[]);
    more.to_vec(alloc)
}

// What the first site reports after the script.
fn first_report(alloc: Global, script: &str) -> Result<Vec<u8>, AllocError> {
    let longer = format!(in alloc; "{script}1 report\n")?;
    let report = printed_behind(alloc, script, &longer);
    drop(longer);
    report
}

// The script, with a report of each site after it.
fn with_reports(alloc: Global, script: &str) -> Result<String, AllocError> {
    let mut longer = String::from_str(alloc, script)?;
    append_reports(&mut longer)?;
    Ok(longer)
}

// What all sites report after the script.
fn all_reports(alloc: Global, script: &str) -> Result<Vec<u8>, AllocError> {
    let longer = with_reports(alloc, script)?;
    let reports = printed_behind(alloc, script, &longer);
    drop(longer);
    reports
}

// Appends a round to the script. Whether sites then report the same as before.
fn is_settled(script: &mut String, reports: &mut Vec<u8>) -> Result<bool, AllocError> {
    append_round(script)?;
    let after = all_reports(*script.allocator(), script)?;
    let same = after == *reports;
    *reports = after;
    Ok(same)
}

// Appends as many rounds as there are until the reports stay.
fn settle(script: &mut String, reports: &mut Vec<u8>) -> Result<(), AllocError> {
    for _ in 0..SITES {
        if is_settled(script, reports)? {
            break;
        }
    }
    Ok(())
}

// How many sites, from the first on, report this text.
fn alike(reports: &[u8], text: &[u8]) -> u8 {
    let mut rest = reports;
    let mut count = 0u8;
    for _ in 0..SITES {
        if let Some(behind) = rest.strip_prefix(text) {
            count = count.saturating_add(1);
            rest = behind;
        }
    }
    count
}

fn print_alike(rt: &HostRuntime, reports: &[u8], text: &[u8]) -> io::Result<()> {
    if text.is_empty() {
        return Ok(());
    }
    io::writer(rt).write_all(text)?;
    println!(rt; "{} sites alike", alike(reports, text))
}

fn settle_and_print(
    rt: &HostRuntime,
    script: &mut String,
    reports: &mut Vec<u8>,
) -> io::Result<()> {
    settle(script, reports)?;
    let text = first_report(rt.alloc(), script)?;
    print_alike(rt, reports, &text)
}

fn print_settled(rt: &HostRuntime, script: &mut String) -> io::Result<()> {
    let mut reports = all_reports(rt.alloc(), script)?;
    settle_and_print(rt, script, &mut reports)
}

fn print_ring(rt: &HostRuntime, script: &mut String) -> io::Result<()> {
    append_opening(script)?;
    print_settled(rt, script)?;
    script.push_str("33 add z s1 * 0.001\n")?;
    print_settled(rt, script)
}

/// Lets the sites merge in a ring, and prints what they then report.
pub fn merge_in_ring(rt: &HostRuntime) -> io::Result<()> {
    let mut script = String::new(rt.alloc());
    print_ring(rt, &mut script)
}
