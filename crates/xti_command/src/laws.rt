//! Laws of words.

ghost use Rattle.std.specs.Prelude.{◌≡◌, Some};
ghost use Rattle.xti_command.specs.Words.{AreTaken, OfPlainWords, command_of};

/// A command's own name alone is that command, and `clap` takes it.
pub fn plain_words_are_commands()
    ensures command { OfPlainWords (λ words command. command_of words ≡ Some command) }
    ensures taken { OfPlainWords (λ words command. AreTaken words) }
{}
