//! What a statement answered, as a line.

ghost use Rattle.std.specs.Prelude.{◌≡◌, ◌+◌, ◌<◌, ◌≤◌, ◌++◌, length};
ghost use Rattle.gh_lines.specs.Text.{MakerStands, answer_line, answer_words_by, fault_words, has_line, maker_name, numbered_line};

use crate::LineBuf;
use gh_base::{Answer, Fault};
use gh_script::Script;

/// That the answer has a line in the output: every answer but [`Answer::Done`].
pub fn has_line(a: &Answer) -> bool
    ensures { result ≡ has_line a.now }
{
    !matches!(a, Answer::Done)
}

/// The name of the goroutine that made the object that is answered; no name for another answer.
fn maker<'s>(script: &'s Script, a: &Answer) -> &'s str
    requires { MakerStands script.now a.now }
    ensures name { result.now ≡ maker_name script.now a.now }
    ensures short { length result.now ≤ 16 }
{
    match a {
        Answer::Ref(name) => script.name(name.g),
        _ => "",
    }
}

fn fault_words(fault: Fault) -> &'static [u8]
    ensures words { result.now ≡ fault_words fault }
    ensures short { length result.now ≤ 11 }
{
    match fault {
        Fault::NilBase => b"fault nil",
        Fault::Field => b"fault field",
        Fault::Kind => b"fault kind",
    }
}

impl LineBuf {
    /// `name n answer`: what statement `n` of goroutine `g`, counted from 1, answered. The answer is
    /// one of `nil`, `int V`, `ref name.k`, `swept`, `full`, `fault nil`, `fault field` and
    /// `fault kind`; and `done` for an answer that has no line in the output.
    pub fn answer(&mut self, script: &Script, g: u32, n: u32, a: Answer)
        requires goroutine { g < length script.now.goroutines }
        requires maker { MakerStands script.now a }
        ensures { self.new ≡ answer_line script.now g n a }
    {
        self.answer_by(script.name(g), n, a, maker(script, &a));
    }

    fn answer_by(&mut self, name: &str, n: u32, a: Answer, maker: &str)
        requires name { length name.now ≤ 16 }
        requires maker { length maker.now ≤ 16 }
        ensures { self.new ≡ numbered_line name.now n (answer_words_by maker.now a) }
    {
        self.begin(name.as_bytes());
        self.put(b" ");
        self.put_number(u64::from(n));
        self.put(b" ");
        self.put_answer(a, maker);
        self.put(b"\n");
    }

    /// Appends the answer in words.
    fn put_answer(&mut self, a: Answer, maker: &str)
        requires room { length self.old ≤ 64 }
        requires maker { length maker.now ≤ 16 }
        ensures text { self.new ≡ self.old ++ answer_words_by maker.now a }
        ensures short { length self.new ≤ length self.old + 41 }
    {
        match a {
            Answer::Done => self.put(b"done"),
            Answer::Nil => self.put(b"nil"),
            Answer::Int(n) => {
                self.put(b"int ");
                self.put_number(n);
            }
            Answer::Ref(name) => {
                self.put(b"ref ");
                self.put(maker.as_bytes());
                self.put(b".");
                self.put_number(u64::from(name.k));
            }
            Answer::Swept => self.put(b"swept"),
            Answer::Full => self.put(b"full"),
            Answer::Fault(fault) => self.put(fault_words(fault)),
        }
    }
}
