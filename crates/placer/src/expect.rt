// What may follow the words that a line begins with.
use std::fmt;
use words::{Keyword, Placed, Symbol, Token};

/// What a line may go on with. Where nothing else is said a form goes on word by word.
#[derive(Clone, Copy, Debug, PartialEq, Eq)]
pub enum Next {
    /// A whole line.
    Line,
    /// The name that is declared.
    NewName,
    /// Nothing.
    End,
    /// What follows a name that may still be a premise or a cell.
    Opened,
    /// A constraint, after its premise.
    Constraint,
    /// What follows the name that a constraint begins with.
    Headed,
    /// A number, and then `to` and another.
    Low,
    To,
    /// A number, and then another.
    Power,
    /// A number, and then a name and another number.
    Distance,
    Other,
    /// A number, and then nothing.
    LastNumber,
    /// A name, a number or a parenthesis.
    Term,
    /// What follows a term within parentheses, left of `<=` and right of it.
    Inside,
    Left,
    Right,
}

// How far a line is read: what may follow, how many parentheses are open, and whether `<=` was read.
#[derive(Clone, Copy)]
struct Reached {
    next: Next,
    depth: usize,
    is_right: bool,
}

// Before the first word.
const START: Reached = Reached {
    next: Next::Line,
    depth: 0,
    is_right: false,
};

impl Reached {
    fn to(self, next: Next) -> Reached {
        Reached { next, ..self }
    }

    // After a whole term.
    fn after_term(self) -> Reached {
        if self.depth > 0 {
            self.to(Next::Inside)
        } else if self.is_right {
            self.to(Next::Right)
        } else {
            self.to(Next::Left)
        }
    }

    // Where a term stands.
    fn term(self, token: Token<'_>) -> Reached {
        match token {
            Token::Symbol(_) => {
                let depth = self.depth.saturating_add(1);
                Reached { depth, ..self }.to(Next::Term)
            }
            _ => self.after_term(),
        }
    }

    // After a term: `+`, `)` or `<=`.
    fn joined(self, token: Token<'_>) -> Reached {
        match token {
            Token::Symbol(Symbol::Close) => {
                let depth = self.depth.saturating_sub(1);
                Reached { depth, ..self }.after_term()
            }
            Token::Symbol(Symbol::AtMost) => Reached {
                is_right: true,
                ..self
            }
            .to(Next::Term),
            _ => self.to(Next::Term),
        }
    }

    // After the name that a constraint begins with.
    fn headed(self, token: Token<'_>) -> Reached {
        match token {
            Token::Reserved(Keyword::In) => self.to(Next::Low),
            Token::Reserved(Keyword::Align) => self.to(Next::Power),
            Token::Reserved(_) => self.to(Next::Distance),
            _ => self.joined(token),
        }
    }

    // Where a line or a constraint begins.
    fn begun(self, token: Token<'_>, named: Next) -> Reached {
        match token {
            Token::Reserved(_) => self.to(Next::NewName),
            Token::Name(_) => self.to(named),
            _ => self.term(token),
        }
    }

    // One word further, of a line that is right so far. Where a line has got to is an enum, and no function to call next,
    // since it is shown too.
    fn step(self, token: Token<'_>) -> Reached {
        match self.next {
            Next::Line => self.begun(token, Next::Opened),
            Next::Opened => match token {
                Token::Symbol(Symbol::Colon) => self.to(Next::Constraint),
                _ => self.headed(token),
            },
            Next::Constraint => self.begun(token, Next::Headed),
            Next::Headed => self.headed(token),
            Next::Low => self.to(Next::To),
            Next::Distance => self.to(Next::Other),
            Next::To | Next::Power | Next::Other => self.to(Next::LastNumber),
            Next::NewName | Next::LastNumber | Next::End => self.to(Next::End),
            Next::Term => self.term(token),
            Next::Inside | Next::Left | Next::Right => self.joined(token),
        }
    }
}

/// What may follow those words of a line that stand before a column, where they begin some line.
pub(crate) fn next_at(words: &[Placed<'_>], column: usize) -> Next {
    words
        .iter()
        .filter(|word| word.column < column)
        .fold(START, |reached, word| reached.step(word.token))
        .next
}

impl fmt::Display for Next {
    fn fmt<W: fmt::Write>(&self, f: &mut fmt::Formatter<W>) -> fmt::Result {
        f.write_str(match self {
            Next::Line => "`cell`, `premise` or a constraint",
            Next::NewName => "a name to declare",
            Next::End => "the end of the line",
            Next::Opened => "`:`, `in`, `align`, `apart`, `+` or `<=`",
            Next::Constraint => "a constraint, which begins with a name, a number or `(`",
            Next::Headed => "`in`, `align`, `apart`, `+` or `<=`",
            Next::Low | Next::Power | Next::Distance | Next::LastNumber => "a number",
            Next::To => "`to`",
            Next::Other => "the name of a cell",
            Next::Term => "a name, a number or `(`",
            Next::Inside => "`+` or `)`",
            Next::Left => "`+` or `<=`",
            Next::Right => "`+` or the end of the line",
        })
    }
}
