//! Which outcomes are successes, and the calls of one command. The crate `rule_cases` runs tables of attempts.
use write_retry::laws::{
    a_second_server_is_selected_to_repeat, a_server_is_selected_where_one_more_may_be,
    answers_are_verdicts, without_a_number_sent_once,
};
use write_retry::{AttemptEnd, Next, OpEvent, OpMachine, Outcome};

#[test]
fn only_ok_is_a_success(rt: HostRuntime) {
    assert!(rt; Outcome::Ok { n: 0, modified: 0 }.is_ok());
    let others = [
        Outcome::Error { code: 0 },
        Outcome::Network,
        Outcome::Late,
        Outcome::BadReply { at: 0 },
        Outcome::NoServer,
        Outcome::PoolTimeout,
        Outcome::PoolCleared { generation: 0 },
        Outcome::PoolClosed { host: 0 },
        Outcome::Incompatible {
            host: 0,
            min: 0,
            max: 12,
        },
        Outcome::WriteErrors { count: 1, first: 0 },
        Outcome::Concern { code: 64 },
        Outcome::TooLarge { size: 2, most: 1 },
    ];
    for outcome in &others {
        assert!(rt; !outcome.is_ok(), "{outcome:?}");
    }
}

/// A find, whose stream is cut, is answered at once.
#[test]
fn a_find_is_not_repeated(rt: HostRuntime) {
    let mut machine = OpMachine::new(false, false);
    assert_eq!(rt; machine.next(), Next::Select);
    let chosen = OpEvent::Chosen {
        host: 3,
        numbered: true,
    };
    if machine.allows(&chosen) {
        assert_eq!(rt; machine.on(chosen), Next::CheckOut { host: 3 });
    }
    let unsent = AttemptEnd::Cut;
    assert!(rt; unsent.is_again() && !unsent.is_lesser());
    assert_eq!(rt; unsent.said(), Outcome::Network);
    answers_are_verdicts();
    a_server_is_selected_where_one_more_may_be();
    a_second_server_is_selected_to_repeat();
    without_a_number_sent_once();
}
