ghost use Rattle.std.specs.Prelude.{◌≡◌, find};
ghost use Rattle.host_name.specs.Addresses.{is_same_address};

use crate::servers::host;
use case_files::{CaseFault, Words, parsed};
use host_name::Host;
use server_pick::Loads;
use std::alloc::Global;

/// How many operations hosts have in flight; a host that is not listed has none.
#[derive(Drop)]
pub struct ListedLoads {
    counts: Vec<(Host, u32)>,
}

impl ListedLoads {
    /// No host has any.
    pub fn new(alloc: Global) -> ListedLoads {
        ListedLoads {
            counts: Vec::new(alloc),
        }
    }

    /// `HOST=N..`: these hosts have so many, and no other has any.
    pub fn of_words(alloc: Global, words: &mut Words<'_>) -> Result<ListedLoads, CaseFault> {
        let mut counts = Vec::new(alloc);
        for word in words.rest(alloc) {
            let Some((name, count)) = word.split_once('=') else {
                return Err(CaseFault::form(alloc, word));
            };
            let host = host(alloc, name)?;
            let count = parsed(alloc, count)?;
            counts.push((host, count))?;
        }
        Ok(ListedLoads { counts })
    }
}

impl Loads for ListedLoads {
    ghost use Rattle.rule_cases.specs.Counts.{count_of};

    ghost load = { λ l host. count_of l.counts.items host };

    fn in_flight(&self, host: &Host) -> u32 {
        match self.counts.iter().find(|entry| entry.0 == *host) {
            Some(entry) => entry.1,
            None => 0,
        }
    }
}
