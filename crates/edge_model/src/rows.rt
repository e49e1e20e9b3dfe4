//! Worked scripts with their answers: each law says that a run gives what the rows of `specs/rows/`
//! tell. The definition of the step is computed; no code takes part.
ghost use Rattle.edge_model.specs.rows.Row.{AllPass, HasParent};
ghost use Rattle.edge_model.specs.rows.Points.{point_rows};
ghost use Rattle.edge_model.specs.rows.Files.{file_rows};
ghost use Rattle.edge_model.specs.rows.Space.{space_rows};
ghost use Rattle.edge_model.specs.rows.Names.{name_rows, moved_directory};
ghost use Rattle.edge_model.specs.rows.Descriptors.{descriptor_rows};

/// Which lines take a point.
pub fn rows_of_points()
    ensures { AllPass point_rows }
{}

/// Reading, writing and cutting files.
pub fn rows_of_files()
    ensures { AllPass file_rows }
{}

/// Room, and points on a full volume.
pub fn rows_of_space()
    ensures { AllPass space_rows }
{}

/// Making, moving and dropping names.
pub fn rows_of_names()
    ensures rows { AllPass name_rows }
    ensures new_parent { HasParent moved_directory 3 4 }
{}

/// Opening files and directories.
pub fn rows_of_descriptors()
    ensures { AllPass descriptor_rows }
{}
