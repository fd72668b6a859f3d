// The theory of walks: a function for each theorem, whose contract is that theorem.
#![tactic(auto)]

ghost use Rattle.walks.specs.Laws.{RowLaws, SimplestUnique, SimplestBegins, AlikeSimplest, PushLaws, CertifiedRight, CertifiedTrails};

/// Rows are ordered, and adding keeps the order.
pub fn rows_are_ordered()
    ensures { RowLaws }
{}

/// No two walks are simplest between the same two edges.
pub fn simplest_walk_is_unique()
    ensures { SimplestUnique }
{}

/// The simplest walk to an edge on a simplest walk is the beginning of that walk.
pub fn simplest_walk_begins_simplest()
    ensures { SimplestBegins }
{}

/// Networks that agree on what walks can meet have the same simplest walks.
pub fn alike_networks_agree()
    ensures { AlikeSimplest }
{}

/// One more edge at the end of a walk adds its own amounts, charge and length.
pub fn last_edge_adds()
    ensures { PushLaws }
{}

/// A certified labelling holds the labels of the simplest walks, and of these alone.
pub fn certified_labels_are_right()
    ensures { CertifiedRight }
{}

/// The previous edges of certified labels lead back over the simplest walk.
pub fn certified_labels_lead_back()
    ensures { CertifiedTrails }
{}
