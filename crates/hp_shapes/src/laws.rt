//! What is proved of clauses of monotone shape.
ghost use Rattle.hp_shapes.specs.Shapes.{ShapesAreFound, ShapesAreWritten};

/// The shape of a clause says it letter by letter, and each clause of monotone shape over two different variables has its
/// shape.
pub fn shapes_are_those_of_clauses()
    ensures written { ShapesAreWritten }
    ensures found { ShapesAreFound }
{}
