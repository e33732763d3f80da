//! The first worked trail as code writes it.
ghost use Rattle.std.specs.Prelude.{◌≡◌, [], ◌∷◌, IfOk};
ghost use Rattle.desk_trail.specs.Written.{lists_of};
ghost use Rattle.desk_trail.specs.declared.entry.Entry.TheVariants as entry;
ghost use Rattle.desk_trail.specs.declared.entry.LookedHow.TheVariants as looked_how;
ghost use Rattle.trail_worked.specs.OneInsert.{steps as one_insert_steps};
ghost use Rattle.trail_worked.specs.Words.{wrote_one};
ghost use Rattle.write_retry.specs.declared.attempt_end.AttemptEnd.TheVariants as attempt;

use bson_doc::Rows;
use cmd_outcome::{Reading, ReplyResult};
use desk_trail::{
    CheckHow, Entry, LookedHow, Memory, OfferedHow, Request, Room, Trail, TrailWriter,
};
use host_name::Host;
use std::alloc::Global;
use topo_rules::TopoEvent;
use write_retry::{AttemptEnd, Outcome};

/// What the trail of one insert is written with: the seed, its reply, and the three requests.
#[derive(Debug, Drop)]
pub struct Told {
    /// The seed.
    pub seed: Host,
    /// The event that the check's reply is offered as.
    pub reply: TopoEvent,
    /// The check's hello.
    pub hello: Request,
    /// The greeting of the new connection.
    pub greeting: Request,
    /// The insert.
    pub insert: Request,
}

/// The trail of one insert with its check, entry by entry.
pub fn one_insert_written(alloc: Global, told: Told) -> Result<Trail, Memory>
    ensures steps { IfOk result (λ t. t.steps ≡ one_insert_steps) }
    ensures lists { IfOk result (λ t. lists_of t ≡ record { names = told.seed ∷ []; events = told.reply ∷ []; sessions = []; requests = told.hello ∷ told.greeting ∷ told.insert ∷ [] }) }
{
    let Told {
        seed,
        reply,
        hello,
        greeting,
        insert,
    } = told;
    let mut kept = Rows::new(alloc);
    kept.push(0)?;
    let mut writer = TrailWriter::new(alloc);
    writer.reserve(Room {
        names: 1,
        events: 1,
        sessions: 0,
        requests: 3,
        steps: 16,
    })?;
    writer.name(0, seed);
    writer.append(0, Entry::CheckBegan { host: 0, stream: 1 });
    writer.ask(0, hello);
    let how = CheckHow::Reply { sample: 100 };
    writer.append(100, Entry::CheckEnded { host: 0, how });
    writer.offer(100, reply, OfferedHow::Accepted { differs: true });
    writer.append(100, Entry::PoolReady { host: 0 });
    writer.append(200, looked(kept));
    writer.append(
        200,
        Entry::Entered {
            op: 0,
            host: 0,
            ticket: 0,
        },
    );
    writer.append(
        200,
        Entry::Dialled {
            op: 0,
            host: 0,
            conn: 1,
            stream: Some(2),
        },
    );
    writer.ask(200, greeting);
    writer.append(
        300,
        Entry::Settled {
            op: 0,
            host: 0,
            conn: 1,
            stale: false,
        },
    );
    writer.append(
        300,
        Entry::Lent {
            op: 0,
            host: 0,
            conn: 1,
        },
    );
    writer.ask(300, insert);
    writer.append(400, ended());
    writer.append(
        400,
        Entry::CheckedIn {
            op: 0,
            host: 0,
            conn: 1,
            errored: false,
        },
    );
    let outcome = Outcome::Ok { n: 1, modified: 0 };
    writer.append(400, Entry::Finished { op: 0, outcome });
    Ok(writer.into_trail())
}

/// The look that chooses the only server.
fn looked(kept: Rows<u32>) -> Entry
    ensures { result ≡ entry.Looked 0 7 8 kept (looked_how.Chosen 0) }
{
    Entry::Looked {
        op: 0,
        a: 7,
        b: 8,
        kept,
        picked: LookedHow::Chosen { host: 0 },
    }
}

/// The end of the attempt: one document was written.
fn ended() -> Entry
    ensures { result ≡ entry.Ended 0 (attempt.Replied wrote_one) }
{
    let reading = Reading {
        result: ReplyResult::Ok { n: 1, modified: 0 },
        retryable: false,
        no_writes: false,
        state: None,
        version: None,
    };
    Entry::Ended {
        op: 0,
        end: AttemptEnd::Replied(reading),
    }
}
