//! Of the attributes of each inode one verdict, and of its parent records: what the code that reads them answers is all that it
//! could answer.

ghost use Rattle.xn_verdicts.specs.Attributes.{AttributesBreakOneRule, HasAttributesOrBreaks, HasOneAttributeList, HasOneParentList, HasOneParentOrder, HasParentsOrBreaks, ParentsBreakOneRule};

/// An inode has one list of attributes at most.
pub fn inode_has_one_attribute_list()
    ensures { HasOneAttributeList }
{}

/// The attributes of an inode break one rule first, and that rule names one block.
pub fn attributes_break_one_rule()
    ensures { AttributesBreakOneRule }
{}

/// An inode that has attributes breaks no rule of them.
pub fn inode_has_attributes_or_breaks()
    ensures { HasAttributesOrBreaks }
{}

/// An inode has one list of parent records at most.
pub fn inode_has_one_parent_list()
    ensures { HasOneParentList }
{}

/// The parent records of an inode break one rule first, and that rule names one block.
pub fn parents_break_one_rule()
    ensures { ParentsBreakOneRule }
{}

/// An inode that has parent records breaks no rule of them.
pub fn inode_has_parents_or_breaks()
    ensures { HasParentsOrBreaks }
{}

/// The parent records of an inode are listed in one order.
pub fn inode_has_one_parent_order()
    ensures { HasOneParentOrder }
{}
