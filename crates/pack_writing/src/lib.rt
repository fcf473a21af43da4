// What converting packs answers is specifications only: see specs/.
