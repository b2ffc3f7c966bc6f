//! The line of an answer.

ghost use Rattle.std.specs.Prelude.{◌≡◌, ◌<◌, true, false, length};
ghost use Rattle.gh_lines.specs.Text.{MakerStands, answer_line, has_line};

use gh_base::Answer;
use gh_lines::{LineBuf, has_line};
use gh_script::Script;

/// Fills the buffer with the line of what statement `n` of goroutine `g`, counted from 1, answered,
/// and says whether it has one. [`Answer::Done`] alone has none, and then the buffer is left as it was.
pub fn tell(line: &mut LineBuf, script: &Script, g: u32, n: u32, answer: Answer) -> bool
    requires goroutine { g < length script.now.goroutines }
    requires maker { MakerStands script.now answer }
    ensures told { result ≡ has_line answer }
    ensures line { has_line answer ≡ true → line.new ≡ answer_line script.now g n answer }
    ensures kept { has_line answer ≡ false → line.new ≡ line.old }
{
    if !has_line(&answer) {
        return false;
    }
    line.answer(script, g, n, answer);
    true
}
