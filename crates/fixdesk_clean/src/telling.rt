//! What is said on standard error.
use clean_run::{Ended, Status, summary_line};

/// Says why the program ended, and what the rows came to.
pub fn tell(rt: &HostRuntime, ended: &Ended) {
    if let Some(why) = &ended.why {
        drop(eprintln!(rt; "fixdesk_clean: {}", why.as_str()));
    } else if ended.status == Status::NoMemory {
        drop(eprintln!(rt; "fixdesk_clean: there is no memory"));
    }
    if let Some(summary) = &ended.summary {
        match summary_line(rt.alloc(), summary) {
            Ok(line) => drop(eprintln!(rt; "{}", line.as_str())),
            Err(_) => drop(eprintln!(rt; "fixdesk_clean: there is no memory")),
        }
    }
}
