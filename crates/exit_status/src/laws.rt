//! Whatever a text is refused for has a text of its own: want of memory is no fault of what a text says.
ghost use Rattle.exit_status.specs.Told.{StylesAreTold, DataAreTold, PpmTextsAreTold, GridsAreTold, ConfigsAreTold, ScriptsAreTold, ListsAreTold, SavedAreTold};

/// The bytes of a style are a style, or are refused with a text.
pub fn law_styles_are_told()
    ensures { StylesAreTold }
{}

/// The bytes of data are data, or are refused with a text.
pub fn law_data_are_told()
    ensures { DataAreTold }
{}

/// The bytes of a raster file are a PPM text, or are refused with a text; and so is a grid that it makes.
pub fn law_rasters_are_told()
    ensures texts { PpmTextsAreTold }
    ensures grids { GridsAreTold }
{}

/// The bytes of a configuration are a configuration, or are refused with a text.
pub fn law_configs_are_told()
    ensures { ConfigsAreTold }
{}

/// The bytes of a script are a script, or are refused with a text; and so are those of an expiry list.
pub fn law_lines_are_told()
    ensures scripts { ScriptsAreTold }
    ensures lists { ListsAreTold }
{}

/// The bytes of a saved farm are a saved farm, or are refused with a text.
pub fn law_saved_are_told()
    ensures { SavedAreTold }
{}
