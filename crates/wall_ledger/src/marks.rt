//! What a pass shows of the properties.

ghost use Rattle.std.specs.Prelude.{◌≡◌, map};
ghost use Rattle.wall_ledger.specs.Shows.{closing_shown, winning_shown, covered, shut_one, crown_one, shown_at};

/// What a pass shows of a property: nothing; that its outcome, which this pass handed in, was the first; or that there
/// is an outcome.
#[derive(Debug, Clone, Copy, PartialEq, Eq)]
pub enum Shown {
    Blank,
    Won,
    Closed,
}

/// A property, and what a pass shows of it.
#[derive(Clone, Copy)]
pub struct PassMark {
    pub property: u32,
    pub shown: Shown,
}

/// Which properties are closed: all, one, or those that a search from a number on passes over before it finds one.
#[derive(Clone, Copy)]
pub enum Closing {
    All,
    One(u32),
    Passed(u32, u32),
}

/// Whether the property is one of those.
fn covers(closing: Closing, property: u32) -> bool
    ensures { result ≡ covered closing property }
{
    match closing {
        Closing::All => true,
        Closing::One(j) => property == j,
        Closing::Passed(least, j) => {
            if least <= j {
                least <= property && property < j
            } else if property < j {
                true
            } else {
                least <= property
            }
        }
    }
}

/// The mark, closed where its property is one of those, unless it was won.
fn closed(closing: Closing, mark: PassMark) -> PassMark
    ensures { result ≡ shut_one (covered closing mark.property) mark }
{
    if !covers(closing, mark.property) {
        return mark;
    }
    match mark.shown {
        Shown::Blank | Shown::Closed => {
            PassMark {
                property: mark.property,
                shown: Shown::Closed,
            }
        }
        Shown::Won => mark,
    }
}

fn close_each(marks: &mut [PassMark], closing: Closing)
    ensures { marks.new ≡ closing_shown (covered closing) marks.old }
{
    for mark in marks.iter_mut() {
        *mark = closed(closing, *mark);
    }
}

/// Closes the marks of these properties, unless they were won.
pub fn close(marks: &mut Vec<PassMark>, closing: Closing)
    ensures { marks.new.items ≡ closing_shown (covered closing) marks.old.items }
{
    close_each(marks, closing);
}

/// The mark, won where it is that of the property.
fn crowned(property: u32, mark: PassMark) -> PassMark
    ensures { result ≡ crown_one property mark }
{
    if mark.property != property {
        return mark;
    }
    PassMark {
        property: mark.property,
        shown: Shown::Won,
    }
}

fn win_each(marks: &mut [PassMark], property: u32)
    ensures { marks.new ≡ winning_shown property marks.old }
{
    for mark in marks.iter_mut() {
        *mark = crowned(property, *mark);
    }
}

/// Marks the property won.
pub fn win(marks: &mut Vec<PassMark>, property: u32)
    ensures { marks.new.items ≡ winning_shown property marks.old.items }
{
    win_each(marks, property);
}

/// What the marks show of a property.
pub fn shown_in(marks: &[PassMark], property: u32) -> Shown
    ensures { result ≡ shown_at marks.now property }
{
    for mark in marks {
        if mark.property == property {
            return mark.shown;
        }
    }
    Shown::Blank
}
