//! Laws and examples of canonical texts and catalogs.

ghost use Rattle.ghost_model.specs.laws.CatalogLaws.{CanonicalTextMeansItsSchema, ACatalogOfEachText, NoCatalogIsLong, CatalogsAreBytes, CatalogsHaveOneSpelling};
ghost use Rattle.ghost_model.specs.examples.Catalogs.{CatalogsOfExamples, BytesOfCatalogs};

/// The canonical text of a schema that a text means is a text that means it too.
pub fn canonical_text_means_its_schema()
    ensures { CanonicalTextMeansItsSchema }
{}

/// Each text that means a schema gives a catalog.
pub fn a_catalog_of_each_text()
    ensures { ACatalogOfEachText }
{}

/// The bytes of each catalog are at most 16,640.
pub fn no_catalog_is_long()
    ensures { NoCatalogIsLong }
{}

/// The bytes of each catalog are bytes.
pub fn catalogs_are_bytes()
    ensures { CatalogsAreBytes }
{}

/// Bytes spell at most one catalog, and begin with at most one.
pub fn catalogs_have_one_spelling()
    ensures { CatalogsHaveOneSpelling }
{}

/// The catalogs of the worked databases, and what is no catalog.
pub fn catalogs_of_examples()
    ensures { CatalogsOfExamples }
{}

/// The bytes of a catalog, changed so that they spell none.
pub fn bytes_of_catalogs()
    ensures { BytesOfCatalogs }
{}
