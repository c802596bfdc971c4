//! The rules of option words, which hold of the reading of every command.

ghost use Rattle.std.specs.Prelude.{◌≡◌, List, ℕ, Option, None};
ghost use Rattle.elfkit_words.specs.declared.splitting.Split.{Split};
ghost use Rattle.elfkit_words.specs.declared.usages.Usage.{Usage};
ghost use Rattle.elfkit_words.specs.Rules.{FollowsRules};
ghost use Rattle.elfkit_words.specs.Splitting.{split_of};

/// The split of the arguments after a command into options and operands follows the rules of option
/// words, sentence by sentence, and no other split does. The function does nothing: its contract is
/// the theorem.
pub fn split_follows_rules()
    ensures follows { (usage : Usage) → FollowsRules usage (split_of usage None) }
    ensures only { (usage : Usage) (split : List (List ℕ) → Option Split) → FollowsRules usage split
        → (words : List (List ℕ)) → split words ≡ split_of usage None words }
{}
