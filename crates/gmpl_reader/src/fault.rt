// What is wrong with a MathProg text or its data.
use gmpl_blocks::DataFault;
use gmpl_generate::ModelFault;
use gmpl_syntax::SyntaxFault;

/// The first fault of a MathProg text with its data.
#[derive(Clone, Copy, Drop)]
pub enum MathProgFault {
    /// The text is no model: its first bad statement.
    Syntax(SyntaxFault),
    /// A block of the data is bad; blocks are counted from 1 over all texts, the line is that of the block's own text.
    Data(DataFault),
    /// A statement of the model can't be executed.
    Model(ModelFault),
}
