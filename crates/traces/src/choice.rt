// What is chosen at a part and a pair.
use languages::step::Step;

// No step; the one step; a part that counts as many; or two parts, the first up to a middle entry and the second from there on.
#[derive(Clone, Copy)]
pub(crate) enum Choice {
    Stay,
    Along(Step),
    Inside {
        part: usize,
    },
    Through {
        left: usize,
        middle: usize,
        right: usize,
    },
}

impl Choice {
    ghost use Rattle.std.specs.Prelude.{◌≡◌, ℕ};
    ghost use Rattle.traces.specs.Choosing.{stay, along};

    // No step, where there is none to take.
    pub(crate) fn stay(u: usize, v: usize, k: u32) -> Option<Choice>
        ensures { result ≡ stay u v k }
    {
        (u == v && k == 0).then_some(Choice::Stay)
    }

    // The one step of a letter, to v.
    pub(crate) fn along(letter: u8, v: usize, k: u32) -> Option<Choice>
        ensures { result ≡ along letter v k }
    {
        (k == 1).then_some(Choice::Along(Step { letter, entry: v }))
    }
}
