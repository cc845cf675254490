//! The layout of images of one to eight attributes: which records a root reaches. The format is in `docs/FORMATS.md`.

ghost use Rattle.image_format.specs.ProofsForImages.{attr_empty_reaches, attr_empty_lawful, attr_present, attr_stays};
ghost use Rattle.image_format.specs.Images.{attr_reaches, IsLawfulImage};

use entry_ref::Layout;

/// The layout of images of one to eight attributes, whose kinds and value types the shape determines.
pub struct AttrLayout;

impl Layout for AttrLayout {
    ghost reaches = { attr_reaches };

    ghost lawful = { IsLawfulImage };

    ghost empty_reaches = { attr_empty_reaches };

    ghost empty_lawful = { attr_empty_lawful };

    ghost present = { attr_present };

    ghost stays = { attr_stays };
}
