// Steps of the line reader as they are printed: a reply, and the place after it.
use run::saying;
use viewer::Step;

// Prints a step: the reply's number, line and count, and the place and the line number after it.
fn say_one(s: Step) {
    saying::reply(s.reply);
    saying::say(b" then ");
    saying::number(s.at as u64);
    saying::next(s.line);
}

// Whether two steps are the same.
fn agree(a: Step, b: Step) -> bool {
    saying::agree(a.reply, b.reply) & ((a.at, a.line) == (b.at, b.line))
}

// Prints the step that came beside the one expected, on a line, and whether lent numbers were touched that no field took; answers
// whether all is as expected.
pub(crate) fn say(came: Step, expected: Step, kept: bool) -> bool {
    let same = agree(came, expected);
    saying::say(b"came ");
    say_one(came);
    saying::say(b", expected ");
    say_one(expected);
    saying::flag(same);
    if !kept {
        saying::say(b" TOUCHED");
    }
    saying::end_line();
    same & kept
}
