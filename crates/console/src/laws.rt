//! What the definitions say, apart from any call.
ghost use Rattle.std.specs.Prelude.{◌≡◌, ℕ, List};
ghost use Rattle.world.specs.declared.events.Event.{Event};
ghost use Rattle.console.specs.Agent.{ConversationsArePlain};
ghost use Rattle.console.specs.Commands.{SpellsCommand};

/// A line spells at most one command.
pub fn one_command()
    ensures { (line : List ℕ) (a b : Event) → SpellsCommand line a → SpellsCommand line b → a ≡ b }
{}

/// In a conversation moving objects and debugging change nothing.
pub fn conversations_are_plain()
    ensures { ConversationsArePlain }
{}
