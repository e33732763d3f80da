ghost use Rattle.std.specs.Prelude.{◌≡◌, None, Some};

use crate::RunningCommand;

impl RunningCommand {
    /// It holds the session at that place from here on (Driver Sessions, implicit sessions).
    pub fn hold(&mut self, place: usize)
        ensures holds { self.new ≡ record self.old { session = Some place } }
    {
        self.session = Some(place);
    }

    /// It drew a transaction number (Retryable Writes, txnNumber).
    pub fn draw(&mut self, number: i64)
        ensures drew { self.new ≡ record self.old { number = Some number } }
    {
        self.number = Some(number);
    }

    /// The place of the session that it holds, which it holds no more; None where it has none.
    pub fn give_back(&mut self) -> Option<usize>
        ensures session { result ≡ self.old.session }
        ensures left { self.new ≡ record self.old { session = None } }
    {
        self.session.take()
    }
}
