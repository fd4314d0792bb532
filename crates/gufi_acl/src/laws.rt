//! What holds of all lists.

ghost use Rattle.gufi_acl.specs.AclTexts.{AclReadsBack, ReadAclsAreSound, AclTextsArePlain};

/// What is written of a list is read back.
pub fn acls_read_back()
    ensures { AclReadsBack }
{}

/// What is read is a list of bytes, at most 216 of them, or none.
pub fn acls_read_are_sound()
    ensures { ReadAclsAreSound }
{}

/// What is written of a list holds no newline and no 0x00, is empty where the list is, and else begins with the mark.
pub fn acls_write_plain_text()
    ensures { AclTextsArePlain }
{}
