//! The faults of forms and of lines. Each carries a fault of the layer below it whole.
ghost use Rattle.std.specs.Prelude.{◌≡◌};
ghost use Rattle.syntax.specs.Faults.{form_report, line_report};
ghost use Rattle.syntax.specs.declared.fault.FormFault.TheVariants as form;
ghost use Rattle.syntax.specs.declared.fault.LineFault.TheVariants as line;

use lexer::{Layer, Position, Report, TokenFault};

/// Why no form could be read.
#[derive(Clone, Copy, Debug, PartialEq, Eq)]
pub enum FormFault {
    /// The bytes make no token.
    Token(TokenFault),
    /// This token cannot come here.
    Stray(Position),
    /// The thirteenth open bracket.
    Deep(Position),
    /// The name is not declared.
    Name(Position),
    /// The number is out of range.
    Range(Position),
    /// The closing bracket that passes 64 nodes.
    Nodes(Position),
}

/// Why a card is refused.
#[derive(Clone, Copy, Debug, PartialEq, Eq)]
pub enum LineFault {
    /// The bytes make no token.
    Token(TokenFault),
    /// The rule's form could not be read.
    Form(FormFault),
    /// This token cannot come here.
    Stray(Position),
    /// The name is declared twice, or is the 33rd.
    Name(Position),
    /// The number is out of range.
    Range(Position),
}

impl From<TokenFault> for FormFault {
    ghost from_gives = { λ e r. r ≡ form.Token e };

    fn from(lower: TokenFault) -> FormFault {
        FormFault::Token(lower)
    }
}

impl From<TokenFault> for LineFault {
    ghost from_gives = { λ e r. r ≡ line.Token e };

    fn from(lower: TokenFault) -> LineFault {
        LineFault::Token(lower)
    }
}

impl From<FormFault> for LineFault {
    ghost from_gives = { λ e r. r ≡ line.Form e };

    fn from(lower: FormFault) -> LineFault {
        LineFault::Form(lower)
    }
}

/// The number, the position and the layer of the fault.
impl From<FormFault> for Report {
    ghost from_gives = { λ e r. r ≡ form_report e };

    fn from(fault: FormFault) -> Report {
        match fault {
            FormFault::Token(fault) => Report::from(fault),
            FormFault::Stray(at) => Report::new(3, at, Layer::Form),
            FormFault::Deep(at) => Report::new(4, at, Layer::Form),
            FormFault::Name(at) => Report::new(5, at, Layer::Form),
            FormFault::Range(at) => Report::new(6, at, Layer::Form),
            FormFault::Nodes(at) => Report::new(7, at, Layer::Form),
        }
    }
}

/// The number, the position and the layer of the fault.
impl From<LineFault> for Report {
    ghost from_gives = { λ e r. r ≡ line_report e };

    fn from(fault: LineFault) -> Report {
        match fault {
            LineFault::Token(fault) => Report::from(fault),
            LineFault::Form(fault) => Report::from(fault),
            LineFault::Stray(at) => Report::new(3, at, Layer::Line),
            LineFault::Name(at) => Report::new(5, at, Layer::Line),
            LineFault::Range(at) => Report::new(6, at, Layer::Line),
        }
    }
}
