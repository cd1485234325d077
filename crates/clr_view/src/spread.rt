//! Marks that spread over links.
ghost use Rattle.std.specs.Prelude.{◌≡◌, ◌<◌, All, false, length, true};
ghost use Rattle.clr_view.specs.Spread.{Carries, IsThere, NoneLeaves, Spreads, is_marked, unmarked};

/// Two places, by their numbers, between which marks spread.
#[derive(Clone, Copy, Debug, PartialEq, Eq)]
pub(crate) struct Link {
    pub from: usize,
    pub to: usize,
}

/// Marks each place to which links lead from one that is marked.
pub(crate) fn spread(links: &[Link], marks: &mut [bool])
    requires { All (IsThere marks.old) links.now }
    ensures spreads { Spreads links.now marks.old marks.new }
    ensures ended { NoneLeaves links.now (is_marked marks.new) }
{
    while spread_once(links, marks) {}
}

/// Marks the places beside those that are marked, link by link, and returns whether there was one.
fn spread_once(links: &[Link], marks: &mut [bool]) -> bool
    requires { All (IsThere marks.old) links.now }
    ensures spreads { Spreads links.now marks.old marks.new }
    ensures ended { result ≡ false → NoneLeaves links.now (is_marked marks.new) }
    ensures fewer { result ≡ true → unmarked marks.new < unmarked marks.old }
{
    let mut more = false;
    for link in links {
        let there = carry(marks, link.from, link.to);
        let back = carry(marks, link.to, link.from);
        more = more | there | back;
    }
    more
}

/// Marks a place where another one is marked, and returns whether it was not marked before.
fn carry(marks: &mut [bool], from: usize, to: usize) -> bool
    requires { IsThere marks.old (record { from = from; to = to }) }
    ensures { Carries from to marks.old marks.new result }
{
    if marks[from] && !marks[to] {
        marks[to] = true;
        return true;
    }
    false
}
