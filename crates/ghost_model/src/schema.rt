//! Laws and examples of schemas and the texts that declare them.

ghost use Rattle.ghost_model.specs.laws.SchemaLaws.{SchemaPlacesAreExact, ReturnsAreShort, OneSchemaReading};
ghost use Rattle.ghost_model.specs.laws.SchemaTrees.{SchemasAreTrees};
ghost use Rattle.ghost_model.specs.examples.Schemas.{SchemasOfTexts, RelationsOfSchemas, SyntaxFaultsOfSchemas, LimitsOfSchemas, NamesOfSchemas, TreesOfSchemas};

/// The places between the tokens of a schema's text say of each text what the grammar says.
pub fn schema_places_are_exact()
    ensures { SchemaPlacesAreExact }
{}

/// Following parents from a table returns to it in at most as many steps as there are tables, if it returns.
pub fn returns_are_short()
    ensures { ReturnsAreShort }
{}

/// Each text means one schema or has one fault.
pub fn one_schema_reading()
    ensures { OneSchemaReading }
{}

/// Each schema that a text means is a tree within the limits.
pub fn schemas_are_trees()
    ensures { SchemasAreTrees }
{}

/// The schemas that some texts mean.
pub fn schemas_of_texts()
    ensures { SchemasOfTexts }
{}

/// Texts that stand in the relations of schemas, faults and syntax faults, and texts that do not.
pub fn relations_of_schemas()
    ensures { RelationsOfSchemas }
{}

/// Where some texts leave the grammar of schemas.
pub fn syntax_faults_of_schemas()
    ensures { SyntaxFaultsOfSchemas }
{}

/// Schemas at their limits and past them.
pub fn limits_of_schemas()
    ensures { LimitsOfSchemas }
{}

/// Schemas whose names or identifiers break a rule.
pub fn names_of_schemas()
    ensures { NamesOfSchemas }
{}

/// Schemas whose tables are no tree.
pub fn trees_of_schemas()
    ensures { TreesOfSchemas }
{}
