// The command lines of the program, over the type N of names.
use spec_mps::Style;

/// Which number of a model a range is of.
#[derive(Clone, Copy)]
pub enum Moved {
    /// The cost of a column.
    Cost,
    /// The right side of a row.
    RightSide,
}

/// A command that reads the text of a model, and says something of it.
#[derive(Clone, Copy)]
pub enum TextCommand<N> {
    /// To solve the model.
    Solve,
    /// To solve the model, with a certificate whose numbers may have any width where the solve is refused an operation.
    SolveWide,
    /// To check the certificate after the text.
    Check,
    /// To check the certificate after the text, whose numbers may have any width.
    CheckWide,
    /// To solve the model from the basis of the file after the text.
    Basis,
    /// The same, with a certificate whose numbers may have any width where the solve is refused an operation.
    BasisWide,
    /// To solve the model by a smaller one.
    Presolve,
    /// To solve the model and, where it has no feasible point, to find limits that contradict each other.
    Iis,
    /// To solve the model, and to range this number of the column or row with this name.
    Range { moved: Moved, name: N },
    /// To solve the model, and to range each of its costs and right sides.
    RangeAll,
}

/// What the words of a command line ask.
#[derive(Clone, Copy)]
pub enum CommandLine<N> {
    /// To run the script that the source gives with so many workers, and so many places that its sessions share.
    Run {
        workers: u32,
        places: u32,
    },
    /// To read the text in this form that the source gives.
    Read(TextCommand<N>, Style),
    /// To make the model of this seed with so many rows and columns, and to solve it.
    Generate {
        seed: u32,
        rows: u32,
        columns: u32,
    },
    /// To serve sessions over links: so many workers, each of which serves so many links one after the other, and so
    /// many places that all sessions share. At which address is said by the words alone.
    Serve {
        workers: u32,
        each: u32,
        places: u32,
    },
}
