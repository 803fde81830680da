// What a log has.

use crate::entry::Entry;
use std::fmt::{Display, Error, Formatter, Write};

/// How many tasks were leased and settled, and the sum of the amounts.
#[derive(Drop)]
pub struct Summary {
    leases: u64,
    settled: u64,
    total: u64,
}

impl Summary {
    pub fn of(log: &[Entry]) -> Summary {
        let mut summary = Summary {
            leases: 0,
            settled: 0,
            total: 0,
        };
        for entry in log {
            match *entry {
                Entry::Leased(_, _) => summary.leases = summary.leases.saturating_add(1),
                Entry::Idle(_) => {}
                Entry::Settled(_, _, amount) => {
                    summary.settled = summary.settled.saturating_add(1);
                    summary.total = summary.total.wrapping_add(amount);
                }
            }
        }
        summary
    }
}

impl Display for Summary {
    fn fmt<W: Write>(&self, f: &mut Formatter<W>) -> Result<(), Error> {
        write!(
            f,
            "leases {} settled {} total {}",
            self.leases, self.settled, self.total
        )
    }
}
