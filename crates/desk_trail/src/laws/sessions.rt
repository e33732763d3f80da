//! The sessions of a trail.
ghost use Rattle.std.specs.Prelude.{◌≡◌, ℕ, ℤ, Some, List, [], ◌∷◌, ◌++◌, slice_get};
ghost use Rattle.entry_judge.specs.declared.timed.Timed.{Timed};
ghost use Rattle.entry_judge.specs.Groups.{nothing_owed, place_behind};
ghost use Rattle.sess_book.specs.Entries.{sessions_judge};
ghost use Rattle.sess_book.specs.Laws.{IsHistory};
ghost use Rattle.sess_book.specs.Sessions.{no_sessions};
ghost use Rattle.desk_trail.specs.Clients.{Client};
ghost use Rattle.desk_trail.specs.Facts.{Fact};
ghost use Rattle.desk_trail.specs.Facts as fact;
ghost use Rattle.desk_trail.specs.Legal.{AreLegal, point_behind};
ghost use Rattle.desk_trail.specs.Parts.{session_part};
ghost use Rattle.desk_trail.specs.Requests.{lsid_of};
ghost use Rattle.desk_trail.specs.States.{CommandState};

/// The leases, draws and returns are a history of a client's sessions, which leads to the sessions that the client has. So each
/// law of such histories holds of them.
pub fn sessions_have_their_history()
    ensures history { (client : Client) (ts : List (Timed Fact)) → AreLegal client ts → IsHistory (session_part client ts) }
    ensures place { (client : Client) (ts : List (Timed Fact)) → AreLegal client ts
        → nothing_owed (point_behind client ts).state.sessions ≡ place_behind sessions_judge no_sessions (session_part client ts) }
{}

/// A command draws a number at most once.
pub fn a_command_draws_once()
    ensures { (client : Client) (xs ys : List (Timed Fact)) (op first second : ℕ) (m n : ℤ)
        → AreLegal client (xs ++ record { at = first; what = fact.Drew op m } ∷ (ys ++ record { at = second; what = fact.Drew op n } ∷ [])) → ⊥ }
{}

/// No session is two commands' at a time.
pub fn a_session_is_one_commands()
    ensures { (client : Client) (ts : List (Timed Fact)) (a b : ℕ) (x y : CommandState) (place : ℕ) → AreLegal client ts
        → slice_get (point_behind client ts).state.commands a ≡ Some x → slice_get (point_behind client ts).state.commands b ≡ Some y
        → x.session ≡ Some place → y.session ≡ Some place → a ≡ b }
{
    sess_book::laws::one_holder();
}

/// Two draws are never of one session's id and one number.
pub fn no_number_is_drawn_twice()
    ensures { (client : Client) (xs ys : List (Timed Fact)) (first second a b : ℕ) (m n : ℤ) (x y : CommandState)
        → AreLegal client (xs ++ record { at = first; what = fact.Drew a m } ∷ (ys ++ record { at = second; what = fact.Drew b n } ∷ []))
        → slice_get (point_behind client xs).state.commands a ≡ Some x
        → slice_get (point_behind client (xs ++ record { at = first; what = fact.Drew a m } ∷ ys)).state.commands b ≡ Some y
        → lsid_of (point_behind client xs).state.sessions x.session
        ≡ lsid_of (point_behind client (xs ++ record { at = first; what = fact.Drew a m } ∷ ys)).state.sessions y.session
        → m ≡ n → ⊥ }
{
    sess_book::laws::ids_differ();
    sess_book::laws::numbers_rise_by_one();
}
