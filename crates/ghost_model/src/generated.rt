//! Examples of generated clinics and of the texts over them.

ghost use Rattle.ghost_model.specs.examples.Generated.{GeneratedFiles, GeneratedTexts};

/// The files of some generated clinics, and what the schema's text means.
pub fn generated_files()
    ensures { GeneratedFiles }
{}

/// Some texts of a generated script, and its length.
pub fn generated_texts()
    ensures { GeneratedTexts }
{}
