// What holds of hidden places.
ghost use Rattle.visibility.specs.Facts.{HiddenBothWays, HiddenWhereInside, NothingHiddenWithoutBoxes};

/// The test says that two places are hidden exactly where a point of the segment between them lies strictly inside a box.
pub fn hidden_where_inside()
    ensures { HiddenWhereInside }
{}

/// A place is hidden from another exactly where the other is hidden from it.
pub fn hidden_both_ways()
    ensures { HiddenBothWays }
{}

/// Where there is no box, nothing is hidden.
pub fn nothing_hidden_without_boxes()
    ensures { NothingHiddenWithoutBoxes }
{}
