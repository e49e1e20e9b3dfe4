ghost use Rattle.std.specs.Prelude.{ℕ};
ghost use Rattle.edge_base.specs.declared.geometry.Request.{Request};
ghost use Rattle.edge_disk.specs.Image.{Image};
ghost use Rattle.edge_image.specs.Formatted.{IsFormatted, OpensFresh};

/// A formatted image opens to the tree that has an empty root directory alone.
pub fn formatted_opens()
    ensures { (g : Request) (time : ℕ) (image : Image)
        → IsFormatted g time image → OpensFresh g time image }
{}
