//! Which events answer what is to be done.
ghost use Rattle.std.specs.Prelude.{◌≡◌};
ghost use Rattle.write_retry.specs.Machine.{allows, answers_check_out};

use crate::{Next, OpEvent, Unsent};

/// Whether the event answers a selection.
pub(crate) fn is_look(event: OpEvent) -> bool
    ensures { result ≡ allows Next.Select event }
{
    matches!(
        &event,
        OpEvent::Chosen { .. } | OpEvent::NoServer | OpEvent::Incompatible { .. }
    )
}

/// Whether the event answers a check-out from the pool of that server.
pub(crate) fn is_check_out(host: u32, event: OpEvent) -> bool
    ensures { result ≡ allows (Next.CheckOut host) event }
{
    match event {
        OpEvent::Lent => true,
        OpEvent::Unsent(unsent) => is_from_pool(host, unsent),
        _ => false,
    }
}

/// Whether a check-out from the pool of that server may end so: a closed pool is that server's, and no size is known yet.
fn is_from_pool(host: u32, unsent: Unsent) -> bool
    ensures { result ≡ answers_check_out host unsent }
{
    match unsent {
        Unsent::PoolClosed { host: closed } => closed == host,
        Unsent::TooLarge { .. } => false,
        _ => true,
    }
}

/// Whether the event answers the sending of a request. Nothing is read while some of it is not out.
pub(crate) fn is_send(event: OpEvent) -> bool
    ensures { result ≡ allows Next.Send event }
{
    match event {
        OpEvent::Sent | OpEvent::Fault | OpEvent::TimedOut => true,
        OpEvent::Unsent(unsent) => matches!(&unsent, Unsent::TooLarge { .. }),
        _ => false,
    }
}

/// Whether the event answers the reading of a reply.
pub(crate) fn is_read(event: OpEvent) -> bool
    ensures { result ≡ allows Next.Read event }
{
    matches!(
        &event,
        OpEvent::Replied(_)
            | OpEvent::Cut
            | OpEvent::Fault
            | OpEvent::TimedOut
            | OpEvent::Bad { .. }
    )
}
