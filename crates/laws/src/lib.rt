// Small laws that the other crates share: specs/Small.antt.
