ghost use Rattle.std.specs.Prelude.{ℕ};

/// Random words.
pub trait Dice: Drop {
    /// Whether dice of this type roll a word. A caller knows a word that passes only from a call of `word`.
    ghost rolls: { ℕ → Type 0 };

    /// A word that passes the type's test.
    fn word(&mut self) -> u64
        ensures { rolls result };
}
