//! What holds of every dialogue: a function that does nothing, whose contract is a law.
ghost use Rattle.tool_dialogue.specs.Laws.{ConversesOnce};

/// What `done` of `dialogue` says of an input leaves one output and one status, whatever the pieces.
pub fn one_dialogue()
    ensures { ConversesOnce }
{}
