// Reads the opening word of a node's line, by which its kind is told.
#![tactic(auto)]

ghost use Rattle.read_cursor.specs.Answers.{ReadsOn};
ghost use Rattle.read_lines.specs.Nodes.{node_head};

use read_cursor::Cursor;
use read_lines::NodeWord;

// The opening word of a node's line.
#[tactic(auto, using(read_cursor::specs::Chains::choices), unfolding(read_lines::specs::Nodes::node_head, read_lines::specs::Nodes::word_form))]
pub fn node_word(from: Cursor<'_>) -> Option<(NodeWord, Cursor<'_>)>
    ensures { ReadsOn node_head.read from.entry result }
{
    if let Some(c) = from.word(b"(block") {
        return Some((NodeWord::Block, c));
    }
    if let Some(c) = from.word(b"(select") {
        return Some((NodeWord::Select, c));
    }
    if let Some(c) = from.word(b"(loop") {
        return Some((NodeWord::Loop, c));
    }
    let c = from.word(b"(exit")?;
    Some((NodeWord::Exit, c))
}
