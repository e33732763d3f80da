ghost use Rattle.std.specs.Prelude.{◌≡◌, true};
ghost use Rattle.write_retry.specs.Machine.{allows};
ghost use Rattle.write_retry.specs.declared.events.OpEvent.TheVariants as event;
ghost use Rattle.desk_trail.specs.Attempts.{with_event};
ghost use Rattle.desk_trail.specs.Pools.{dials_now, has_by, waits_now};
ghost use Rattle.desk_trail.specs.States.{Nothing};
ghost use Rattle.cmd_state.specs.Inside.{check_out_of};

use crate::{CheckOut, RunningCommand};
use pool_book::Ticket;
use write_retry::OpEvent;

/// Where a command is with a pool once a connection of that number is lent to it.
fn lent(check_out: CheckOut, conn: u64) -> CheckOut
    ensures has { check_out_of result ≡ has_by conn (check_out_of check_out) }
{
    match check_out {
        CheckOut::Waits { host, ticket } => CheckOut::Has {
            host,
            ticket: ticket.number,
            conn,
        },
        CheckOut::Dials { host, ticket, .. } => CheckOut::Has { host, ticket, conn },
        CheckOut::Nothing | CheckOut::Has { .. } => check_out,
    }
}

impl RunningCommand {
    /// It asks a host's pool for a connection, by a ticket.
    pub fn enter(&mut self, host: u32, ticket: Ticket)
        ensures waits { self.new ≡ waits_now host ticket.number self.old }
    {
        self.check_out = CheckOut::Waits { host, ticket };
    }

    /// It dials a connection of that number, at a moment in microseconds.
    pub fn dial(&mut self, conn: u64, moment: u64)
        ensures dials { self.new ≡ dials_now moment conn self.old }
    {
        self.dialled = Some(moment);
        if let CheckOut::Waits { host, ticket } = self.check_out {
            self.check_out = CheckOut::Dials {
                host,
                ticket: ticket.number,
                conn,
            };
        }
    }

    /// The connection of that number is lent to it.
    pub fn take(&mut self, conn: u64)
        requires asked { allows self.old.op.next event.Lent ≡ true }
        ensures has { self.new ≡ with_event event.Lent (record self.old { check_out = has_by conn self.old.check_out }) }
    {
        self.check_out = lent(self.check_out, conn);
        self.machine.on(OpEvent::Lent);
    }

    /// It is with no pool any more: it got no connection, or checked its connection in.
    pub fn leave_pool(&mut self)
        ensures left { self.new ≡ record self.old { check_out = Nothing } }
    {
        self.check_out = CheckOut::Nothing;
    }
}
