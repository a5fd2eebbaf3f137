ghost use Rattle.std.specs.Prelude.{◌≡◌, ◌<◌, length, drop, OnOk, OnErr};
ghost use Rattle.token_forms.specs.Parsing.{Gives, TakesNoMemory, word_at};

use crate::tokens::Tokens;
use base_types::Stop;

impl Tokens<'_, '_> {
    /// Takes a token with this text. Where another stands first, that one is taken.
    #[inline(always)]
    #[tactic(auto, unfolding(crate::specs::Parsing::word_at))]
    pub fn word(&mut self, word: &[u8]) -> Result<(), Stop>
        ensures value { Gives result self.new (word_at word.now self.old) }
        ensures shorter { OnOk result (length self.new < length self.old) }
        ensures memory { TakesNoMemory result }
        ensures left { OnErr result (self.new ≡ drop 1 self.old) }
    {
        let token = self.next().ok_or(Stop::NoForm)?;
        if token.text == word {
            Ok(())
        } else {
            Err(Stop::NoForm)
        }
    }
}
